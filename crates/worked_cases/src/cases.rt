// What the definitions give at each of the cases.
ghost use Rattle.worked_cases.specs.Cases.{NoAtoms, OneOfTwo, ClauseBetween, NestAlone, OrderOverNest, TwoArcs, HalfAnAmpere, NestOverNest};

pub fn cases()
    ensures no_atoms { NoAtoms }
    ensures one_of_two { OneOfTwo }
    ensures clause_between { ClauseBetween }
    ensures nest_alone { NestAlone }
    ensures order_over_nest { OrderOverNest }
    ensures two_arcs { TwoArcs }
    ensures half_an_ampere { HalfAnAmpere }
    ensures nest_over_nest { NestOverNest }
{}
