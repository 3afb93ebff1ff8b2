ghost use Rattle.sheet.specs.Laws.{SharesAddUp, OutIsIn, EveryoneArrives, PersonsBounded, ArrivalsBounded, GoesOn, CameOn, SomeCross, FlowsEnclose, SpeedsEnclose, FlowsNear, SpeedsNear, SpeedsInRange, FlowsInRange, FlowDurationsNear, TravelsNear, SheetIsWorksheet, OnlyWorksheet};

/// What the worksheet of every ready network keeps, under every lawful walking tables; it computes nothing.
pub fn worksheets_keep_their_laws()
    ensures shares { SharesAddUp }
    ensures out { OutIsIn }
    ensures arrive { EveryoneArrives }
    ensures persons { PersonsBounded }
    ensures arrivals { ArrivalsBounded }
    ensures goes { GoesOn }
    ensures came { CameOn }
    ensures some { SomeCross }
    ensures flows { FlowsEnclose }
    ensures speeds { SpeedsEnclose }
    ensures flow_ends { FlowsNear }
    ensures speed_ends { SpeedsNear }
    ensures speed_range { SpeedsInRange }
    ensures flow_range { FlowsInRange }
    ensures flow_durations { FlowDurationsNear }
    ensures travels { TravelsNear }
    ensures equations { SheetIsWorksheet }
    ensures only { OnlyWorksheet }
{}
