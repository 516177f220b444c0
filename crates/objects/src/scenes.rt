// What a scene gives its steps.
ghost use Rattle.std.specs.Prelude.{◌≡◌, ◌≤◌, IfOk};
ghost use Rattle.table.specs.Description.{map_at};
ghost use Rattle.rules.specs.Lookups.{map_output};
ghost use Rattle.rules.specs.Steps.{mapped, aligned};
ghost use Rattle.steps.specs.Took.{Took};
ghost use Rattle.objects.specs.Scenes.{described, source_bits};
ghost use Rattle.objects.specs.Tries.{tried};

use crate::scene::Scene;
use bits::source::Source;
use rules::faults::{Failure, ReadingFault};
use rules::steps::Got;
use steps::view::View;

impl<S: Source> Scene<'_, S> {
    // The object's window.
    pub fn view(&self) -> View<'_, S>
        ensures source { result.source.now ≡ self.now.source.now }
        ensures window { result.window ≡ self.now.about.window }
    {
        View {
            source: self.source,
            window: self.about.window,
        }
    }

    // A step of a line; its failure is the reading's fault, at the place where the step began.
    pub(crate) fn tried<T>(&self, line: u16, step: Result<T, Failure>) -> Result<T, ReadingFault>
        ensures { result ≡ tried line self.now.place step }
    {
        let place = self.place;
        step.map_err(|failure| failure.at(line, place))
    }

    // The index of a map, and its row's output.
    pub(crate) fn mapped(&self, map: u16) -> Result<Got, Failure>
        ensures value { result ≡ mapped (source_bits self.now) self.now.about.window (map_at (described self.now) map).width (map_output (described self.now) map) self.now.place }
        ensures bound { IfOk result (λ g. Took self.now.place self.now.about.window.end g.place g.length g.after) }
    {
        let record = self.tables.map(map as usize);
        self.view().map_read(&self.tables.rows, record, self.place)
    }

    // The place after alignment to a byte.
    pub(crate) fn aligned(&self) -> Result<u32, Failure>
        ensures value { result ≡ aligned (source_bits self.now) self.now.about.window 8 self.now.place }
        ensures bound { IfOk result (λ q. (self.now.place ≤ q) × (q ≤ self.now.about.window.end)) }
    {
        self.view().aligned(8, self.place)
    }
}
