// The lines of a capture that bear data, each with its number.
#![tactic(auto)]

ghost use Rattle.std.specs.Prelude.{◌≡◌, ◌≢◌, Some, None, Ok, Err, IfSome, IfOk, IfErr, IsErr, if◌then◌else◌};
ghost use Rattle.std.specs.IoError.{error_kind};
ghost use Rattle.std.specs.String.{string_bytes};
ghost use Rattle.winding.specs.Capture.{bears_data};
ghost use Rattle.data_lines.specs.Lines.{data_line};

use std::fmt::Display;
use std::io;
use std::io::{Eprint, ErrorKind};
use winding::bears_data;

// A line that bears data, with its number.
#[derive(Drop)]
pub struct DataLine {
    pub number: usize,
    pub text: String,
}

// The line that was read, if it bears data, for `filter_map` over enumerated lines. A line that is no
// text is reported on standard error and passed over; any other failure to read is handed on.
pub fn data_line<R: Eprint>(
    rt: &R,
    index: usize,
    line: io::Result<String>,
) -> Option<io::Result<DataLine>>
    ensures text { IfOk line (λ text. result ≡ (if bears_data (string_bytes text) then Some (Ok (data_line index text)) else None)) }
    ensures no_text { IfErr line (λ e. error_kind e ≡ ErrorKind.InvalidData → IfSome result IsErr) }
    ensures unread { IfErr line (λ e. error_kind e ≢ ErrorKind.InvalidData → result ≡ Some (Err e)) }
{
    let number = index.saturating_add(1);
    match line {
        Ok(text) if bears_data(text.as_str()) => Some(Ok(DataLine { number, text })),
        Ok(_) => None,
        Err(e) if e.kind() == ErrorKind::InvalidData => {
            eprintln!(rt; "line {number}: {e}").err().map(Err)
        }
        Err(e) => Some(Err(e)),
    }
}

impl DataLine {
    // What was made of the line. There is none where the line is at fault, and the fault is reported
    // on standard error.
    pub fn reported<R: Eprint, T: Drop, F: Display + Drop>(
        &self,
        rt: &R,
        made: Result<T, F>,
    ) -> io::Result<Option<T>>
        ensures value { IfOk made (λ value. result ≡ Ok (Some value)) }
        ensures fault { IfErr made (λ _. IfOk result (λ value. value ≡ None)) }
    {
        let number = self.number;
        match made {
            Ok(value) => Ok(Some(value)),
            Err(fault) => {
                eprintln!(rt; "line {number}: {fault}")?;
                Ok(None)
            }
        }
    }
}

#[cfg(test)]
mod tests {
    use super::*;
    use std::io::{BufRead, Error};
    use std::test::Fail;

    // A standard error that takes nothing.
    struct Closed;

    impl Eprint for Closed {
        fn eprint<D: Display + Drop>(&self, _value: D) -> io::Result<()> {
            Err(Error::from(ErrorKind::BrokenPipe))
        }

        fn eprintln<D: Display + Drop>(&self, _value: D) -> io::Result<()> {
            Err(Error::from(ErrorKind::BrokenPipe))
        }
    }

    #[test]
    fn lines_with_data(rt: HostRuntime) -> Result<(), Fail> {
        let capture: &[u8] = b"# wheel\n1000 1\n\n\xff\n5 2";
        let mut expected = [(2, "1000 1"), (5, "5 2")].iter();
        for line in capture
            .lines(rt.alloc())
            .enumerate()
            .filter_map(|(index, line)| data_line(&rt, index, line))
        {
            let line = line?;
            assert_eq!(rt; Some(&(line.number, line.text.as_str())), expected.next());
        }
        assert_eq!(rt; expected.next(), None);
        Ok(())
    }

    #[test]
    fn failures(rt: HostRuntime) -> Result<(), Fail> {
        let unread = data_line(&rt, 0, Err(Error::from(ErrorKind::TimedOut)));
        match unread {
            Some(Err(e)) => assert_eq!(rt; e.kind(), ErrorKind::TimedOut),
            _ => return Err(Fail::new("the failure to read is handed on")),
        }
        let unreported = data_line(&Closed, 0, Err(Error::from(ErrorKind::InvalidData)));
        match unreported {
            Some(Err(e)) => assert_eq!(rt; e.kind(), ErrorKind::BrokenPipe),
            _ => return Err(Fail::new("the failure to report is handed on")),
        }
        Ok(())
    }

    #[test]
    fn what_is_made_of_a_line(rt: HostRuntime) -> Result<(), Fail> {
        let text = "5 2".to_string(rt.alloc())?;
        let line = data_line(&rt, 6, Ok(text)).ok_or("it bears data")??;
        assert_eq!(rt; line.number, 7);
        assert_eq!(rt; line.reported(&rt, Ok::<u8, &str>(3))?, Some(3));
        assert_eq!(rt; line.reported(&rt, Err::<u8, &str>("at fault"))?, None);
        assert_eq!(rt; line.reported(&Closed, Ok::<u8, &str>(3))?, Some(3));
        match line.reported(&Closed, Err::<u8, &str>("at fault")) {
            Err(e) => assert_eq!(rt; e.kind(), ErrorKind::BrokenPipe),
            Ok(_) => return Err(Fail::new("the failure to report is handed on")),
        }
        Ok(())
    }
}
