// What the boundary answers.
ghost use Rattle.std.specs.Prelude.{◌≡◌};
ghost use Rattle.backcast.specs.Answers.{answered, number};

use tariff::amounts::Quantity;

// Why a day has no back-cast. C gets the number of each, by From.
#[derive(Clone, Copy, PartialEq, Eq, Debug)]
pub enum NoBackCast {
    // One of the curve's three or the temperature.
    NotANumber,
    // The load.
    NoQuantity,
}

impl From<NoBackCast> for u64 {
    ghost from_gives = { λ r n. n ≡ number r };

    #[tactic(auto, unfolding(crate::specs::Answers::number))]
    fn from(reason: NoBackCast) -> u64 {
        match reason {
            NoBackCast::NotANumber => 31,
            NoBackCast::NoQuantity => 32,
        }
    }
}

// The number, and the back-cast in units; a refusal has none. C has no Result, so the number lies beside the quantity. The struct comes from the
// Result by From, at the one spot below.
#[repr(C)]
#[derive(Clone, Copy, PartialEq, Eq, Debug)]
pub struct BackCast {
    pub number: u64,
    pub quantity: Quantity,
}

impl From<Result<Quantity, NoBackCast>> for BackCast {
    ghost from_gives = { λ r b. b ≡ answered r };

    #[tactic(auto, unfolding(crate::specs::Answers::answered, crate::specs::Answers::accepted, crate::specs::Answers::refused))]
    fn from(quantity: Result<Quantity, NoBackCast>) -> BackCast {
        match quantity {
            Ok(quantity) => BackCast {
                number: 0,
                quantity,
            },
            Err(reason) => BackCast {
                number: u64::from(reason),
                quantity: Quantity(0),
            },
        }
    }
}
