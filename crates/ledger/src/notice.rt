// NOTICE.
ghost use Rattle.std.specs.Prelude.{◌≡◌, cond};
ghost use Rattle.ledger.specs.Answers.{refused, settle};
ghost use Rattle.ledger.specs.Checks.{verdict};
ghost use Rattle.ledger.specs.Entries.{writer_takes};
ghost use Rattle.ledger.specs.Notice.{awaits, exchange_checks, exchanged, post_notice, written};
ghost use Rattle.ledger.specs.Posting.{admission};
ghost use Rattle.ledger.specs.Refusals.{number_of};
ghost use Rattle.ledger.specs.State.{account_at, no_notice, with_notice};
ghost use Rattle.ledger.specs.declared.kinds.Kind.TheVariants as kind;

use crate::admitted::Admitted;
use crate::entries::Entry;
use crate::refusals::Refusal;
use crate::state::{Account, Ledger, Notice, Today};
use crate::transfer::hand_on;
use tariff::amounts::Quantity;
use tariff::ranged::InRange;

impl Notice {
    // As it stands where nothing answers the letter.
    #[tactic(auto, unfolding(crate::specs::Notice::written))]
    fn written(e: Entry) -> Notice
        ensures { result ≡ written e }
    {
        Notice {
            stands: true,
            takes: e.writer_takes(),
            other: e.b,
            units: Quantity(e.w1),
        }
    }

    // Whether the letter is its counterpart.
    #[tactic(auto, unfolding(crate::specs::Notice::awaits))]
    fn awaits(self, e: Entry) -> bool
        ensures { result ≡ awaits self e }
    {
        self.stands
            & (self.other == e.a)
            & (self.takes != e.writer_takes())
            & (self.units.0 == e.w1)
    }
}

#[tactic(auto, unfolding(crate::specs::State::with_notice, crate::specs::State::with_today))]
fn with_notice(a: Account, notice: Notice) -> Account
    ensures { result ≡ with_notice a notice }
{
    let today = Today { notice, ..a.today };
    Account { today, ..a }
}

fn without_notice(a: Account) -> Account
    ensures { result ≡ with_notice a no_notice }
{
    with_notice(a, Notice::default())
}

// Of two letters who gives gas and who takes it, as the second one tells.
fn parties(e: Entry) -> (usize, usize)
    ensures { (result.0 ≡ cond (writer_takes e) e.b e.a) × (result.1 ≡ cond (writer_takes e) e.a e.b) }
{
    if e.writer_takes() {
        (e.b, e.a)
    } else {
        (e.a, e.b)
    }
}

// The second of two letters: gas goes from one account to the other as by a TRANSFER, and the first letter with it.
#[tactic(auto, using(crate::proofs::Exchanges::exchange_refused, crate::proofs::Refused::refuses))]
fn exchange(l: &mut Ledger, e: Admitted) -> Result<(), Refusal>
    requires { (admission l.old e.entry ≡ 0) × (e.kind ≡ kind.Notice) }
    ensures { refused l.new (number_of result)
        ≡ settle l.old (verdict (exchange_checks e.entry (account_at l.old e.entry.a) (account_at l.old e.entry.b))) (exchanged l.old e.entry) }
{
    let (from, to) = parties(e.entry);
    let j = e.entry.b;
    hand_on(l, from, to, e.entry.date.month, Quantity(e.entry.w1))?;
    l.accounts[j] = without_notice(l.accounts[j]);
    Ok(())
}

#[tactic(auto, using(crate::proofs::Refused::refuses), unfolding(crate::specs::Notice::post_notice, crate::specs::Notice::notice_checks, crate::specs::Notice::waiting, crate::specs::Notice::writer_waiting, crate::specs::Notice::meets, crate::specs::Checks::verdict, crate::specs::Refusals::number, crate::specs::State::account_at, crate::specs::State::nobody, crate::specs::State::no_month, crate::specs::State::no_today, crate::specs::State::no_totals, crate::specs::State::with_account, crate::specs::Answers::settle, crate::specs::Answers::refused))]
pub fn post_notice(l: &mut Ledger, e: Admitted) -> Result<(), Refusal>
    requires { (admission l.old e.entry ≡ 0) × (e.kind ≡ kind.Notice) }
    ensures { refused l.new (number_of result) ≡ post_notice l.old e.entry }
{
    let i = e.entry.a;
    let j = e.entry.b;
    if !(l.accounts[i].opened & l.accounts[j].opened) {
        return Err(Refusal::NotOpen);
    }
    if l.accounts[i].today.notice.stands {
        return Err(Refusal::AlreadyTold);
    }
    if l.accounts[j].today.notice.awaits(e.entry) {
        return exchange(l, e);
    }
    // It stands, and is in range: nothing is left to be asked.
    l.accounts[i] = with_notice(l.accounts[i], Notice::written(e.entry));
    l.touched = true;
    Ok(())
}
