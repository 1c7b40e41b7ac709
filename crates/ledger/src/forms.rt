// What is wrong with an entry by itself: numbers 2 to 7.
ghost use Rattle.std.specs.Prelude.{◌≡◌};
ghost use Rattle.ledger.specs.Forms.{account_too_high, unused_set, some_units, words_in_range, wrong_transfer, entry_number};
ghost use Rattle.ledger.specs.Kinds.{code};
ghost use Rattle.ledger.specs.Admitted.{Admits, Finds};

use crate::admitted::Admitted;
use crate::entries::Entry;
use crate::kinds::{Kind, Uses, version};
use crate::refusals::Refusal;
use tariff::bounds::{MOST_MCF, MOST_MDQ, MOST_UNITS};
use tariff::ranged::Ranged;

#[tactic(auto, unfolding(crate::specs::Forms::account_too_high))]
fn account_too_high(k: Uses, e: Entry) -> bool
    ensures { result ≡ account_too_high k e }
{
    ((1 <= k.accounts) & (16 <= e.a)) | ((2 <= k.accounts) & (16 <= e.b))
}

// A line for each of the six words, as the definition has it.
#[tactic(auto, unfolding(crate::specs::Forms::unused_set))]
fn unused_set(k: Uses, e: Entry) -> bool
    ensures { result ≡ unused_set k e }
{
    let a = (k.accounts < 1) & (e.a != 0);
    let b = (k.accounts < 2) & (e.b != 0);
    let flags = k.flags < e.flags;
    let w1 = (k.words < 1) & (e.w1 != 0);
    let w2 = (k.words < 2) & (e.w2 != 0);
    let w3 = (k.words < 3) & (e.w3 != 0);
    let w4 = (k.words < 4) & (e.w4 != 0);
    let w5 = (k.words < 5) & (e.w5 != 0);
    let w6 = (k.words < 6) & (e.w6 != 0);
    a | b | flags | w1 | w2 | w3 | w4 | w5 | w6
}

// Units from 1 to 10^9: what can change hands, whoever asks.
#[tactic(auto, unfolding(crate::specs::Forms::some_units))]
pub fn some_units(w: u64) -> bool
    ensures { result ≡ some_units w }
{
    (1..=MOST_UNITS).contains(&w)
}

#[tactic(auto, unfolding(crate::specs::Forms::words_in_range, crate::specs::Kinds::lookup, crate::specs::Kinds::code))]
fn words_in_range(kind: Kind, e: Entry) -> bool
    requires { e.kind ≡ code kind }
    ensures { result ≡ words_in_range e }
{
    match kind {
        Kind::Terms => e.terms().in_range(),
        Kind::Enrol => (e.w1 <= MOST_MDQ) & (e.w2 <= MOST_UNITS),
        Kind::Deliver => (e.w1 <= MOST_UNITS) & (e.w2 <= MOST_UNITS),
        Kind::Transfer => some_units(e.w1) & some_units(e.w2),
        Kind::Trade | Kind::Notice => some_units(e.w1),
        Kind::Measure => e.w1 <= MOST_MDQ,
        Kind::Usage => e.w1 <= MOST_MCF,
        Kind::CloseMonth => e.prices().in_range(),
        Kind::Confiscated => e.w1 <= MOST_UNITS,
        Kind::CloseDay | Kind::Holiday => true,
    }
}

#[tactic(auto, unfolding(crate::specs::Forms::wrong_transfer, crate::specs::Kinds::code))]
fn wrong_transfer(kind: Kind, e: Entry) -> bool
    requires { e.kind ≡ code kind }
    ensures { result ≡ wrong_transfer e }
{
    ((kind == Kind::Transfer) & ((e.a == e.b) | (e.w1 != e.w2)))
        | ((kind == Kind::Notice) & (e.a == e.b))
}

// The kind of an entry with nothing wrong, or the first of 2 to 7 that applies. Apart from `check`, as the reader of an archive has no use for the entry:
// handed back with the kind, its copies took the reader half as long again.
#[tactic(auto, unfolding(crate::specs::Refusals::number, crate::specs::Forms::entry_number, crate::specs::Forms::entry_checks, crate::specs::Forms::field_checks, crate::specs::Forms::field_number, crate::specs::Checks::verdict))]
pub fn checked_kind(is_new: bool, entry: &Entry) -> Result<Kind, Refusal>
    ensures { Finds result entry.now (entry_number is_new entry.now) }
{
    let kind = Kind::try_from(entry.kind)?;
    let uses = kind.uses();
    if version(is_new) < uses.since {
        return Err(Refusal::NoSuchKind);
    }
    if !entry.date.in_range() {
        return Err(Refusal::NoSuchDate);
    }
    if account_too_high(uses, *entry) {
        return Err(Refusal::NoSuchAccount);
    }
    if unused_set(uses, *entry) {
        return Err(Refusal::UnusedSet);
    }
    if !words_in_range(kind, *entry) {
        return Err(Refusal::OutOfRange);
    }
    if wrong_transfer(kind, *entry) {
        return Err(Refusal::WrongTransfer);
    }
    Ok(kind)
}

// The entry, where it has nothing wrong.
#[tactic(auto, using(crate::proofs::Admissions::own_right))]
pub fn check(is_new: bool, entry: Entry) -> Result<Admitted, Refusal>
    ensures { Admits result entry (entry_number is_new entry) }
{
    let kind = checked_kind(is_new, &entry)?;
    Ok(Admitted { entry, kind })
}
