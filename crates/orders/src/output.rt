// What is said of the orders, line by line, and what failed meanwhile.
ghost use Rattle.std.specs.Prelude.{◌≡◌, is_ok, is_some};

use super::failure::OrdersFailure;
use std::fmt::Display;

#[derive(Drop)]
pub(super) struct Output {
    rt: HostRuntime,
    // the line of the order at hand
    pub(super) line: usize,
    // the first failure
    failure: Option<OrdersFailure>,
}

impl Output {
    // Nothing said so far.
    pub(super) fn new(rt: HostRuntime) -> Output {
        Output {
            rt,
            line: 0,
            failure: None,
        }
    }

    // Whether something failed.
    pub(super) fn has_failed(&self) -> bool
        ensures { result ≡ is_some self.now.failure }
    {
        self.failure.is_some()
    }

    // What a step gave, or none where it failed. The first failure is kept; nothing is asked after it.
    pub(super) fn given<T, E>(&mut self, step: Result<T, E>) -> Option<T>
    where
        OrdersFailure: From<E>,
        ensures { is_some result ≡ is_ok step }
    {
        match step {
            Ok(value) => Some(value),
            Err(error) => {
                self.failure.get_or_insert(OrdersFailure::from(error));
                None
            }
        }
    }

    // Says something of the order at hand, after the number of its line.
    pub(super) fn say<D: Display + Drop>(&mut self, what: D) {
        let line = self.line;
        self.say_more(format_args!("{line}: {what}"));
    }

    // Says more, on a line of its own.
    pub(super) fn say_more<D: Display + Drop>(&mut self, what: D) {
        let said = self.rt.println(what);
        self.given(said);
    }

    // Ends with a last line, or with the first failure.
    pub(super) fn close<D: Display + Drop>(self, last: D) -> Result<(), OrdersFailure> {
        match self.failure {
            Some(failure) => Err(failure),
            None => Ok(self.rt.println(last)?),
        }
    }
}
