ghost use Rattle.exact.specs.Laws.{RisingEncloses, FallingEncloses, ScaledRises, CappedRises, OverSinks, RoundedEncloses, TotalEncloses, LeTrans, SumsAdd, SumsScale, SumsCompare};

/// The laws that every calculation on ends rests on; it computes nothing.
pub fn exact_numbers_keep_their_laws()
    ensures rising { RisingEncloses }
    ensures falling { FallingEncloses }
    ensures scaled { ScaledRises }
    ensures capped { CappedRises }
    ensures over { OverSinks }
    ensures rounded { RoundedEncloses }
    ensures total { TotalEncloses }
    ensures order { LeTrans }
    ensures sums_add { SumsAdd }
    ensures sums_scale { SumsScale }
    ensures sums_compare { SumsCompare }
{}
