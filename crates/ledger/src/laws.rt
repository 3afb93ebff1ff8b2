ghost use Rattle.ledger.specs.Reach.{EveryRunIsLawful};
ghost use Rattle.ledger.specs.Sound.{EveryRunIsSound};

/// What holds after every succession of calls; it computes nothing.
pub fn every_run_is_sound()
    ensures lawful { EveryRunIsLawful }
    ensures sound { EveryRunIsSound }
{}
