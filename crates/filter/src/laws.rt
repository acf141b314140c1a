// What is promised of the whole gate.
ghost use Rattle.filter.specs.Example.{Example};
ghost use Rattle.filter.specs.Promise.{Promise};

// For every run of events, each beginning of a stream in it, and each packet.
#[tactic(auto, using(crate::proofs::Kept::promise_kept))]
pub fn promise_kept()
    ensures { Promise }
{}

// A run of packets that meets what the promise asks for: a beginning, bytes that pass, a word that shuts the stream, a beginning anew.
#[tactic(auto, using(crate::proofs::Example::example))]
pub fn example_run()
    ensures { Example }
{}
