// Laws of what was read, each named by a contract.
ghost use Rattle.proposal.specs.Parts.{PairRead, LiveRead};

// What an accepted pair consists of.
pub fn pair_parts()
    ensures { PairRead }
{}

// What an accepted live claim consists of.
pub fn live_parts()
    ensures { LiveRead }
{}
