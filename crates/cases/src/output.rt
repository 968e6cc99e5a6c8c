// The answer lines on their way out.
use std::io;
use std::io::Write;

// Takes each piece of a line, whether it can be written or not. A write that fails is not tried again, and the pieces
// behind it are written all the same: whoever reads the answers finds them short.
#[derive(Drop)]
pub struct Lines<W>(pub W);

impl<W: Write> Write for Lines<W> {
    fn write(&mut self, piece: &[u8]) -> io::Result<usize> {
        let _ = self.0.write_all(piece);
        Ok(piece.len())
    }

    fn flush(&mut self) -> io::Result<()> {
        self.0.flush()
    }
}
