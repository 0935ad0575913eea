// Standard output of an order that prints something.
use std::io::{self, ErrorKind, Write};

/// Standard output. If it is a report's, nothing is written any more once nobody reads it (a broken pipe, as by
/// `| head`), and that is no fault: what is printed then counts as written.
#[derive(Drop)]
pub struct ReportOutput<W> {
    output: W,
    is_report: bool,
    is_unread: bool,
}

impl<W: Write> ReportOutput<W> {
    /// Writes to `output`, which is a report's or not.
    pub fn new(output: W, is_report: bool) -> Self {
        ReportOutput {
            output,
            is_report,
            is_unread: false,
        }
    }
}

impl<W: Write> Write for ReportOutput<W> {
    fn write(&mut self, octets: &[u8]) -> io::Result<usize> {
        if self.is_unread {
            return Ok(octets.len());
        }
        match self.output.write(octets) {
            Err(error) if self.is_report && error.kind() == ErrorKind::BrokenPipe => {
                self.is_unread = true;
                Ok(octets.len())
            }
            written => written,
        }
    }

    fn flush(&mut self) -> io::Result<()> {
        if self.is_unread {
            return Ok(());
        }
        self.output.flush()
    }
}
