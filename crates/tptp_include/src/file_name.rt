ghost use Rattle.std.specs.Prelude.{◌≡◌, IfOk};

use std::alloc::{AllocError, Global};
use std::marker::Model;
use std::rc::Rc;
use tptp_reader::Text;

/// The name of a file. The statements of the file share it. Contracts see it as the list of its bytes.
#[derive(Debug, Drop)]
pub struct FileName {
    text: Rc<Text>,
}

impl Model for FileName {
    ghost use Rattle.std.specs.Prelude.{List, ℕ};

    ghost Value = { List ℕ };

    ghost view = { λ n. n.text.value };
}

impl FileName {
    /// A name of its own that is the given text.
    pub fn of(alloc: Global, text: &str) -> Result<FileName, AllocError>
        ensures { IfOk result (λ n. n ≡ text.now) }
    {
        let text = Rc::new(alloc, Text::of(alloc, text)?)?;
        Ok(FileName { text })
    }

    /// The same name, without a copy of its text.
    pub fn share(&self) -> Result<FileName, AllocError>
        ensures { IfOk result (λ n. n ≡ self.now) }
    {
        let text = self.text.clone()?;
        Ok(FileName { text })
    }

    /// Lends the text.
    pub fn text(&self) -> &str
        ensures { result.now ≡ self.now }
    {
        self.text.as_ref().text()
    }
}
