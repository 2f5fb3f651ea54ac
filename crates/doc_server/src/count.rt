//! How many examples pass, and how many don't.

ghost use Rattle.std.specs.Prelude.{◌≡◌, string_bytes, IfOk};
ghost use Rattle.doc_server.specs.Examples.{count_line, differs_line, next_number, one_more, status_of};
ghost use Rattle.doc_server.specs.ExampleSteps.{HasRoom};

use doc_page_parts::failure::Memory;
use doc_page_parts::heap::{Heap, String};
use std::fmt::Write;

/// How many examples passed, and how many did not.
#[derive(Clone, Copy)]
pub struct Count {
    pub passed: usize,
    pub failed: usize,
}

impl Count {
    /// Counts one example more.
    pub fn add(&mut self, passed: bool)
        requires { HasRoom self.old }
        ensures { self.new ≡ one_more self.old passed }
    {
        if passed {
            self.passed += 1;
        } else {
            self.failed += 1;
        }
    }

    /// The line of the next example, where it differs.
    pub fn differs_line(&self, heap: Heap) -> Result<String, Memory>
        requires { HasRoom self.now }
        ensures { IfOk result (λ line. string_bytes line ≡ differs_line (next_number self.now)) }
    {
        let mut line = String::new(heap);
        write!(line, "example {} differs\n", self.passed + self.failed + 1)?;
        Ok(line)
    }

    /// The last line.
    pub fn count_line(&self, heap: Heap) -> Result<String, Memory>
        ensures { IfOk result (λ line. string_bytes line ≡ count_line self.now) }
    {
        let mut line = String::new(heap);
        write!(line, "{} passed, {} failed\n", self.passed, self.failed)?;
        Ok(line)
    }

    /// The status that the command ends with: 1 where an example differs.
    pub fn status(&self) -> u8
        ensures { result ≡ status_of self.now }
    {
        if self.failed == 0 { 0 } else { 1 }
    }
}
