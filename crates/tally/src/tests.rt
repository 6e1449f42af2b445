// What is printed, answers that differ among it, which no run of the programs prints.
use crate::Tally;
use std::cell::RefCell;
use std::fmt::Display;
use std::io::{self, ErrorKind, Print};
use std::test::Fail;

// Keeps what is printed.
#[derive(Drop)]
struct Page {
    text: RefCell<String>,
}

impl Print for Page {
    fn print<D: Display + Drop>(&self, value: D) -> io::Result<()> {
        let mut text = self
            .text
            .try_borrow_mut()
            .map_err(|_| ErrorKind::ResourceBusy)?;
        write!(text, "{value}")?;
        Ok(())
    }

    fn println<D: Display + Drop>(&self, value: D) -> io::Result<()> {
        self.print(value)?;
        self.print("\n")
    }

    fn write_all(&self, bytes: &[u8]) -> io::Result<()> {
        let text = str::from_utf8(bytes).map_err(|_| ErrorKind::InvalidData)?;
        self.print(text)
    }
}

#[test]
fn printed(rt: HostRuntime) -> Result<(), Fail> {
    let page = Page {
        text: RefCell::new(String::new(rt.alloc())),
    };
    let mut tally = Tally::new();
    tally.line(&page, "a line", true)?;
    tally.line(&page, "another", false)?;
    tally.word(&page, "a word", 0xAB, 0xAB)?;
    tally.word(&page, "another word", 0x0123456789ABCDEF, 0)?;
    page.println(tally)?;
    let text = page.text.try_borrow()?;
    assert_eq!(rt;
        text.as_str(),
        "a line: ok\n\
         another: differs\n\
         a word: 00000000000000AB ok\n\
         another word: 0123456789ABCDEF differs\n\
         4 lines, 2 differ\n"
    );
    Ok(())
}
