ghost use Rattle.std.specs.Prelude.{◌≡◌, ◌≤◌};
ghost use Rattle.rules.specs.Reading.{write};
ghost use Rattle.rules.specs.Steps.{natural};
ghost use Rattle.values.specs.Names.{named_by};
ghost use Rattle.objects.specs.Scenes.{described, node_value};

use crate::inside::{Inside, NAMES};
use crate::scene::Scene;
use bits::source::Source;
use rules::faults::{Failure, ReadingCause};
use values::evaluate::Scope;

// A value goes to a name; name 0 says none.
pub fn write(names: &mut [i64; NAMES], name: u16, value: i64)
    requires { name ≤ 128 }
    ensures { named_by names.new ≡ write name value (named_by names.old) }
{
    if name > 0 {
        names[name as usize - 1] = value;
    }
}

impl Inside {
    // What the object's values are worked out from.
    pub(crate) fn scope<'a, S: Source>(&'a self, scene: &'a Scene<S>) -> Scope<'a>
        ensures nodes { result.nodes.now ≡ (described scene.now).nodes }
        ensures names { result.names.now ≡ self.now.names }
        ensures size { result.size ≡ scene.now.about.size }
    {
        Scope {
            nodes: &scene.tables.nodes,
            names: &self.names,
            size: scene.about.size,
        }
    }

    // The value of a node in the object.
    pub(crate) fn value<S: Source>(&self, scene: &Scene<S>, node: u16) -> Result<i64, Failure>
        ensures { result ≡ node_value scene.now self.now node }
    {
        self.scope(scene).value(node)
    }

    // A count from 0 to 65,535, as a node gives it.
    pub(crate) fn count<S: Source>(&self, scene: &Scene<S>, node: u16) -> Result<u16, Failure>
        ensures { result ≡ natural 65535 (node_value scene.now self.now node) }
    {
        u16::try_from(self.value(scene, node)?)
            .ok()
            .ok_or(ReadingCause::WidthOrCount.into())
    }
}
