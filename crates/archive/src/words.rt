// Numbers in bytes, the low byte first.
ghost use Rattle.std.specs.Prelude.{◌≡◌, ◌+◌, ◌<◌, ◌≤◌, length};
ghost use Rattle.std.proofs.Math.Seq.{paste};
ghost use Rattle.ledger.specs.Entries.{half_at, word_at};
ghost use Rattle.archive.specs.Words.{bytes_of};

#[tactic(auto, using(ledger::proofs::Fields::half_bytes))]
pub fn half(bytes: &[u8], at: usize) -> u16
    requires { at + 2 ≤ length bytes.now }
    ensures { result ≡ half_at bytes.now at }
{
    u16::from_le_bytes([bytes[at], bytes[at + 1]])
}

// The ledger reads a word too, of an entry's array, so it asks no length. A cast: no From, and a TryFrom would need an arm for what cannot come.
#[tactic(auto, using(ledger::proofs::Fields::word_bytes))]
pub fn word(bytes: &[u8], at: usize) -> usize
    requires { at + 4 ≤ length bytes.now }
    ensures value { result ≡ word_at bytes.now at }
    ensures bounded { result < 4294967296 }
{
    u32::from_le_bytes([bytes[at], bytes[at + 1], bytes[at + 2], bytes[at + 3]]) as usize
}

// Stores a number in the four bytes at a place. A cast: no From, and a TryFrom would need an arm for what cannot come.
// So that the cast loses nothing, the bound of a word is asked of the caller, who knows it of every archive.
pub fn put_word(out: &mut [u8], at: usize, n: usize)
    requires { (at + 4 ≤ length out.old) × (n < 4294967296) }
    ensures { out.new ≡ paste out.old at (bytes_of 4 n) 4 }
{
    let end = at + 4;
    out[at..end].copy_from_slice(&(n as u32).to_le_bytes());
}
