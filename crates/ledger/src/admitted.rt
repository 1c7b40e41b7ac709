// An entry that has nothing wrong by itself.
ghost use Rattle.std.specs.Prelude.{◌≡◌};
ghost use Rattle.ledger.specs.Entries.{terms_of, prices_of};
ghost use Rattle.ledger.specs.Forms.{field_number};
ghost use Rattle.ledger.specs.Kinds.{code};
ghost use Rattle.ledger.specs.declared.kinds.Kind.TheVariants as kind;

use crate::entries::Entry;
use crate::kinds::Kind;
use tariff::bill::Prices;
use tariff::dates::Date;
use tariff::ranged::InRange;
use tariff::terms::Terms;

// The entry, and its kind by name. So what is done with it asks for no more of its words than that.
#[derive(Clone, Copy)]
pub struct Admitted {
    pub entry: Entry,
    pub kind: Kind,
    ghost right: { field_number entry ≡ 0 },
    ghost named: { entry.kind ≡ code kind },
}

impl Admitted {
    // A date that exists.
    #[tactic(auto, using(crate::proofs::RightEntries::is_real_lem))]
    pub fn date(self) -> InRange<Date>
        ensures { result.value ≡ self.entry.date }
    {
        InRange::of(self.entry.date)
    }

    #[tactic(auto, using(crate::proofs::RightEntries::terms_fit), unfolding(crate::specs::Kinds::code))]
    pub fn terms(self) -> InRange<Terms>
        requires { self.kind ≡ kind.Terms }
        ensures { result.value ≡ terms_of self.entry }
    {
        InRange::of(self.entry.terms())
    }

    #[tactic(auto, using(crate::proofs::RightEntries::prices_fit), unfolding(crate::specs::Kinds::code))]
    pub fn prices(self) -> InRange<Prices>
        requires { self.kind ≡ kind.CloseMonth }
        ensures { result.value ≡ prices_of self.entry }
    {
        InRange::of(self.entry.prices())
    }
}
