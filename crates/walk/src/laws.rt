// What walks say of machines.
ghost use Rattle.walk.specs.Settled.{Settles};
ghost use Rattle.walk.specs.Laws.{FirstWalk, SecondWalk};

use domain::Domain;

// Where the known tests have their answers, a settled test has its own.
pub fn settled_holds<D: Domain>()
    ensures { Settles D.ops }
{}

// The path condition and the data transformation of the first machine's walk.
pub fn path_condition<D: Domain>()
    ensures { FirstWalk D.ops }
{}

// A walk whose every turn is settled is the machine's way.
pub fn settled_way<D: Domain>()
    ensures { SecondWalk D.ops }
{}
