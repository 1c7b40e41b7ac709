// One number of a ledger overwritten. The input names it by a number, so that is what is matched.
use crate::records::Number;
use ledger::{Account, Ledger};
use tariff::amounts::{Dth, Mcf, Mills, Quantity, Units};
use tariff::months::Month;

fn overwrite_account(a: &mut Account, field: u8, v: u64) {
    match field {
        0 => a.bank = Units(v.cast_signed()),
        1 => a.mdq = Dth(v),
        2 => a.step.k = v,
        3 => a.step.pending = v,
        4 => a.step.over = v,
        5 => a.step.under = v,
        6 => a.capacity.mddq = Dth(v),
        7 => a.capacity.bcq = Dth(v),
        8 => a.month.totals.net = Units(v.cast_signed()),
        9 => a.month.totals.sales = Quantity(v),
        10 => a.month.totals.purchases = Quantity(v),
        11 => a.month.totals.cash_ins = Quantity(v),
        12 => a.month.totals.cash_outs = Quantity(v),
        13 => a.month.totals.usage = Mcf(v),
        14 => a.carry = Quantity(v),
        15 => a.owed = Mills(v.cast_signed()),
        16 => a.violation_days = v,
        17 => a.opened = v != 0,
        _ => a.excused = v != 0,
    }
}

// Fields below 32 are an account's, where there is one of that number.
pub fn overwrite(l: &mut Ledger, number: Number) {
    let v = number.value;
    match number.field {
        32 => l.begun = v != 0,
        33 => l.date.year = v,
        34 => l.date.month = Month(v),
        35 => l.date.day = v,
        36 => l.touched = v != 0,
        37 => l.terms.no_notice = Dth(v),
        38 => l.terms.design_day = Dth(v),
        39 => l.terms.storage = Dth(v),
        40 => l.terms.retainage = v,
        41 => l.terms.demand_rate = v,
        42..=255 => l.terms.commodity_rate = v,
        field => {
            if let Some(a) = l.accounts.get_mut(usize::from(number.account)) {
                overwrite_account(a, field, v);
            }
        }
    }
}
