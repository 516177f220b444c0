// A stream's file, piece by piece.
ghost use Rattle.std.specs.Prelude.{◌≤◌, vec_len};

use std::fs::{File, OpenFile};
use std::io;
use std::io::{ErrorKind, Read, Seek, SeekFrom};
use streaming::state::Wanted;

// As many bytes as are kept at once, at most, of a file that can be read from any place.
const ROOM: usize = 65_536;

// Some bytes of a stream, and where to read on. Each byte is read at most once, so that a file which changes meanwhile
// is still one stream.
#[derive(Drop)]
pub(crate) struct Pieces {
    // what is left of the file, none where all of it was read at once
    file: Option<File>,
    bytes: Vec<u8>,
    // how many of the bytes are the stream's, and the number of the first
    filled: usize,
    first: u32,
    // how many bytes the stream has; what the file gains after it was opened is not the stream's
    length: u64,
}

impl Pieces {
    // The stream of a file, and its length. What does not say its length, as a pipe, is read at once, by the same handle:
    // a named pipe that is opened again waits for another writer.
    pub(crate) fn open(rt: &HostRuntime, name: &str) -> io::Result<(Pieces, u64)> {
        let mut file = File::open(rt, name)?;
        let about = file.metadata()?;
        if about.is_file() && about.len() > 0 {
            let length = about.len();
            let room = usize::try_from(length).unwrap_or(ROOM).min(ROOM);
            let pieces = Pieces {
                file: Some(file),
                bytes: vec![in rt.alloc(); 0u8; room]?,
                filled: 0,
                first: 0,
                length,
            };
            return Ok((pieces, length));
        }
        let mut bytes = Vec::new(rt.alloc());
        file.read_to_end(&mut bytes)?;
        let filled = bytes.len();
        let length = filled as u64;
        let pieces = Pieces {
            file: None,
            bytes,
            filled,
            first: 0,
            length,
        };
        Ok((pieces, length))
    }

    // The number of the first byte that is there.
    pub(crate) fn first(&self) -> u32 {
        self.first
    }

    // The bytes that are there.
    pub(crate) fn bytes(&self) -> &[u8] {
        &self.bytes[..self.filled.min(self.bytes.len())]
    }

    // Goes on to the bytes that are wanted: those before them are let go, and the room is filled. A file that has become
    // shorter since it was opened ends too early.
    pub(crate) fn go_to(&mut self, wanted: Wanted) -> io::Result<()> {
        let Some(mut file) = self.file.take() else {
            return Err(ErrorKind::UnexpectedEof.into());
        };
        self.let_go(&mut file, wanted.first)?;
        self.fill(&mut file)?;
        self.file = Some(file);
        let end = u64::from(wanted.first) + self.bytes().len() as u64;
        if end < u64::from(wanted.end) {
            return Err(ErrorKind::UnexpectedEof.into());
        }
        Ok(())
    }

    // Lets the bytes before number `first` go; those that are not there yet are passed over.
    fn let_go(&mut self, file: &mut File, first: u32) -> io::Result<()> {
        let filled = self.filled.min(self.bytes.len());
        let gone = first.checked_sub(self.first).map(|n| n as usize);
        match gone.filter(|count| *count <= filled) {
            Some(count) => {
                self.bytes.copy_within(count..filled, 0);
                self.filled = filled - count;
            }
            None => {
                file.seek(SeekFrom::Start(u64::from(first)))?;
                self.filled = 0;
            }
        }
        self.first = first;
        Ok(())
    }

    // How many bytes there may be from the first on: as many as there is room for, and none past the stream's end.
    fn most(&self) -> usize
        ensures { result ≤ vec_len self.now.bytes }
    {
        let left = self.length.saturating_sub(u64::from(self.first));
        usize::try_from(left)
            .unwrap_or(self.bytes.len())
            .min(self.bytes.len())
    }

    // Fills the room with the next bytes of the stream, as far as the file has any. A read that a signal interrupts is
    // tried again.
    fn fill(&mut self, file: &mut File) -> io::Result<()> {
        for _ in 0..u64::MAX {
            let most = self.most();
            let filled = self.filled.min(most);
            match file.read(&mut self.bytes[filled..most]) {
                Ok(0) => break,
                Ok(read) => self.filled = filled + read,
                Err(error) if error.kind() == ErrorKind::Interrupted => {}
                Err(error) => return Err(error),
            }
        }
        Ok(())
    }
}
