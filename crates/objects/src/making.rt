// The inside of an object at its beginning, and its names.
ghost use Rattle.std.specs.Prelude.{◌≡◌, ℕ, ◌≤◌, Bool, List, []};
ghost use Rattle.table.specs.Description.{description, class_at};
ghost use Rattle.rules.specs.Reading.{Object, Objects, State, content, write, all_zero};
ghost use Rattle.values.specs.Names.{named_by};
ghost use Rattle.objects.specs.Frames.{frames};
ghost use Rattle.objects.specs.Ahead.{Fit, Readable, Inner, inner_of, inner_run, with_names};
ghost use Rattle.objects.specs.Starts.{Begun};

use crate::frame::Frame;
use crate::frames::Frames;
use crate::inside::{Inside, NAMES};
use crate::values_of::write;
use records::records::Extension;
use records::stretches::Stretch;
use table::loaded::Loaded;
use values::evaluate::name_at;

impl Inside {
    // An object with nothing to do, but for the extensions from `extension` on.
    pub fn idle(extension: usize) -> Inside
        ensures { inner_of result ≡ record { frames = []; extension = extension; names = all_zero } }
    {
        Inside {
            frames: Frames::new(),
            extension,
            names: [0; NAMES],
        }
    }

    // Has nothing to do, and its names are 0. In place: an object has a kilobyte of names.
    fn clear(&mut self)
        ensures { inner_of self.new ≡ record { frames = []; extension = 0; names = all_zero } }
    {
        self.frames.clear();
        self.extension = 0;
        self.names = [0; NAMES];
    }

    // Becomes an object of a class at its beginning; of class 0 all is passed over.
    pub fn begin(&mut self, tables: &Loaded, class: u16)
        requires { Readable (description tables.now) }
        ensures { Begun (description tables.now) class (inner_of self.new) }
    {
        self.clear();
        let extensions: &[Extension] = &tables.extensions;
        if class == 0 {
            self.extension = extensions.len();
            return;
        }
        let own = tables.class(class as usize);
        let base = tables.class(own.base as usize);
        self.frames.push_both(
            Frame::from(Stretch::from(own)),
            Frame::from(Stretch::from(base)),
        );
    }

    // The value of a name, 0 where there is none.
    pub fn name(&self, n: u16) -> i64
        ensures { result ≡ named_by self.now.names n }
    {
        name_at(&self.names, n)
    }

    // A value goes to a name.
    pub fn receive(&mut self, name: u16, value: i64)
        requires { name ≤ 128 }
        ensures { inner_of self.new ≡ with_names (write name value (named_by self.old.names)) (inner_of self.old) }
    {
        write(&mut self.names, name, value);
    }
}
