// R61 to R65, R113 and R115: whatever list of postings a fresh ledger gets, old or new, anyone can add up what it holds at the end.
#![tactic(auto)]

ghost use Rattle.history.specs.History.{BanksAddUp, PanelAddsUp, DebtsAddUp, DaysAddUp, StrikingChangesNothing, OnlyClosingsCount, LettersStand, MovesOnce, PairsCross};

// For every list of postings to an old fresh ledger and to a new one: specs/History.antt has each claim in words.
pub fn every_history()
    ensures banks { BanksAddUp }
    ensures panel { PanelAddsUp }
    ensures debts { DebtsAddUp }
    ensures violation_days { DaysAddUp }
    ensures struck { StrikingChangesNothing }
    ensures closings { OnlyClosingsCount }
    ensures letters { LettersStand }
    ensures once { MovesOnce }
    ensures crossing { PairsCross }
{}
