// One step for a line whose kind there is.
ghost use Rattle.objects.specs.Moves.{LineFits, LineMoved};

use crate::inside::Inside;
use crate::moves::Move;
use crate::scene::Scene;
use crate::upcoming::NextLine;
use bits::source::Source;
use records::statements::Statement;
use rules::faults::ReadingFault;

impl Inside {
    // A line of any kind that there is.
    pub(crate) fn known_line<S: Source>(
        &mut self,
        scene: &Scene<S>,
        next: NextLine,
    ) -> Result<Move, ReadingFault>
        requires { LineFits scene.now next.statement next.at self.old }
        ensures { LineMoved scene.now next.statement next.at self.old result self.new }
    {
        // one match over a closed set, as in `Inside::step`
        let at = next.at;
        match next.statement {
            Statement::Read(fields) => self.read(scene, at, fields),
            Statement::Assign { name, node } => self.assign(scene, at, name, node),
            Statement::MapRead { map, name } => self.map_read(scene, at, map, name),
            Statement::Use(fields) => self.use_line(scene, at, fields),
            Statement::If {
                node,
                first,
                second,
            } => self.branch(scene, at, node, first, second),
            Statement::While {
                node,
                lines,
                rounds,
            } => self.begin_rounds(scene, at, node, lines, rounds),
        }
    }
}
