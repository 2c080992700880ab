// Laws of tables and of runs, each named by a contract.
ghost use Rattle.machine.specs.Encode.{ReadsBack, Accepts, SoundTables};
ghost use Rattle.machine.specs.Runs.{OneStep, Together, Deterministic, Reflexive};

use domain::Domain;

// Accepted words are the words of the machine that is read from them.
pub fn reads_back()
    ensures { ReadsBack }
{}

// The words of every sound machine are accepted, up to the longest table, and read as that machine.
pub fn accepts_sound()
    ensures { Accepts }
{}

// What holds of the machine of every accepted table.
pub fn tables_sound()
    ensures { SoundTables }
{}

// From every place there is one step.
pub fn one_step<D: Domain>()
    ensures { OneStep D.ops }
{}

// The stores of a step take effect together.
pub fn stores_together<D: Domain>()
    ensures { Together D.ops }
{}

// Runs are deterministic.
pub fn runs_deterministic<D: Domain>()
    ensures { Deterministic D.ops }
{}

// A machine whose registers are shared is equivalent to itself.
pub fn equivalent_itself<D: Domain>()
    ensures { Reflexive D.ops }
{}
