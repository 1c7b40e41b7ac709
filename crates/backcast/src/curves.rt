// The load curve: what a supplier's customers take at a temperature.
ghost use Rattle.std.specs.Prelude.{◌≡◌};
ghost use Rattle.backcast.specs.Answers.{answered, back_cast};
ghost use Rattle.backcast.specs.Load.{all_numbers, load_of};

use crate::answers::NoBackCast;
use crate::doubles::{is_number, is_quantity, whole_part};
use tariff::amounts::Quantity;

// Units of gas at the turning temperature and above it, units more for each degree below, and that temperature.
#[repr(C)]
#[derive(Clone, Copy, PartialEq, Debug)]
pub struct LoadCurve {
    pub base: f64,
    pub slope: f64,
    pub turning: f64,
}

impl LoadCurve {
    // Whether all of it, and the temperature f, are numbers.
    #[tactic(auto, unfolding(crate::specs::Load::all_numbers))]
    pub fn numbers(self, f: f64) -> bool
        ensures { result ≡ all_numbers self f }
    {
        is_number(self.base) & is_number(self.slope) & is_number(self.turning) & is_number(f)
    }

    // The load at temperature f, each operation rounded once.
    #[tactic(auto, unfolding(crate::specs::Load::load_of))]
    pub fn load(self, f: f64) -> f64
        ensures { result ≡ load_of self f }
    {
        if f < self.turning {
            self.base + self.slope * (self.turning - f)
        } else {
            self.base
        }
    }

    // The load rounded down.
    #[tactic(auto, unfolding(crate::specs::Answers::answered, crate::specs::Answers::number, crate::specs::Answers::back_cast))]
    pub fn quantity(self, f: f64) -> Result<Quantity, NoBackCast>
        ensures { answered result ≡ back_cast self f }
    {
        if !self.numbers(f) {
            return Err(NoBackCast::NotANumber);
        }
        let load = self.load(f);
        if !is_quantity(load) {
            return Err(NoBackCast::NoQuantity);
        }
        Ok(Quantity(whole_part(load)))
    }
}
