// The first four bytes of an archive, which say what it is and whether it is old or new.
ghost use Rattle.std.specs.Prelude.{◌≡◌};
ghost use Rattle.archive.specs.Layout.{opening_bytes};
ghost use Rattle.archive.specs.Reading.{opens_as};

// Three letters, then 1 or 2. Old or new is a bool, as C has it, here and wherever the archive hands it on: an enum of two would be made of it
// and turned back at each call.
pub fn opening(is_new: bool) -> [u8; 4]
    ensures { result ≡ opening_bytes is_new }
{
    [b'E', b'F', b'B', if is_new { b'2' } else { b'1' }]
}

// Whether the first four bytes are those of an old archive, or of a new one.
#[tactic(auto, using(crate::proofs::Openings::opens))]
pub fn opens_as(is_new: bool, archive: &[u8]) -> bool
    ensures { result ≡ opens_as is_new archive.now }
{
    archive.starts_with(&opening(is_new))
}
