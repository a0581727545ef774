// What a conversion promises. Nothing here runs: the call that keeps the promise is `convert`.
#![tactic(auto)]

ghost use Rattle.promise.specs.Promise.{PromiseKept};

// What every conversion does (`Converts`) makes up the main promise (`Promise`), after every history of calls.
pub fn promise_kept()
    ensures law { PromiseKept }
{}
