// The records of a list.
ghost use Rattle.std.specs.Prelude.{◌<◌, length, IfSome};
ghost use Rattle.std.specs.Iterator.{at_most};

// One number of a ledger: of an account, or of the ledger itself.
#[derive(Clone, Copy)]
pub struct Number {
    pub account: u8,
    pub field: u8,
    pub value: u64,
}

#[derive(Clone, Copy)]
pub enum Record<'a> {
    Posting(&'a [u8]),
    Overwriting(Number),
}

// The first record, and the bytes after it.
fn first_record<'a>(input: &'a [u8]) -> Option<(Record<'a>, &'a [u8])>
    ensures shorter { IfSome result (λ r. length r.1.now < length input.now) }
{
    let (tag, rest) = input.split_first()?;
    match tag {
        b'P' => {
            let (count, rest) = rest.split_first()?;
            let (entry, rest) = rest.split_at_checked(usize::from(*count))?;
            Some((Record::Posting(entry), rest))
        }
        b'K' => {
            let (place, rest) = rest.split_first_chunk::<2>()?;
            let (value, rest) = rest.split_first_chunk::<8>()?;
            let number = Number {
                account: place[0],
                field: place[1],
                value: u64::from_le_bytes(*value),
            };
            Some((Record::Overwriting(number), rest))
        }
        _ => None,
    }
}

// The records of these bytes. One that is cut off, or of another sort, ends the list.
#[derive(Drop)]
pub struct Records<'a>(pub &'a [u8]);

impl<'a> Iterator for Records<'a> {
    type Item = Record<'a>;

    ghost remaining = { λ s. at_most (length s.0.now) };

    fn next(&mut self) -> Option<Record<'a>> {
        let (record, rest) = first_record(self.0)?;
        self.0 = rest;
        Some(record)
    }
}
