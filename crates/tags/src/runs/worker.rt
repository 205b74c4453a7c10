// Who works a tag: code of which nothing is assumed.
ghost use Rattle.std.specs.Prelude.{List, Option as Maybe};
ghost use Rattle.tags.specs.declared.runs.call.Call.{Call as Asked};
ghost use Rattle.tags.specs.declared.runs.event.Event.{Event as Happened};

use crate::runs::call::Call;
use crate::runs::event::Event;

/// Who works a tag: code of which nothing is assumed. It picks the calls of a run.
pub trait Worker<'a> {
    // What this worker may pick after these events, and the worker that it then is. Anything may be
    // allowed here: what it says is known of the worker's runs.
    ghost picks: { Self → List Happened → Maybe Asked → Self → Type 0 };

    /// The next call, in view of all events so far, or nothing to stop.
    fn pick(&mut self, journal: &[Event<'a>]) -> Option<Call<'a>>
        ensures { picks self.old journal.now result self.new };
}
