// What the program reads: a life file, and the meter exports beside it.
use lifefile::flaw::Flaw;
use lifefile::script::Exports;
use std::alloc::{AllocError, Global};
use std::fs;
use std::path::Path;

// Each byte as one character: one that is not ASCII stays such, and its line is found wrong when its turn comes.
// The bytes are taken, so that a life that runs does not hold its file twice.
pub fn text_of(heap: Global, bytes: Vec<u8>) -> Result<String, AllocError> {
    bytes.iter().map(|byte| *byte as char).collect(heap)
}

// The exports beside a life file; beside the current folder where the life comes from standard input.
#[derive(Drop)]
pub struct Beside<'a, 'b> {
    pub rt: &'a HostRuntime,
    pub life: &'b str,
}

impl Exports for Beside<'_, '_> {
    fn text_of(&self, file: &str) -> Result<Vec<u8>, Flaw> {
        let path = Path::new(self.life).with_file_name(self.rt.alloc(), file)?;
        fs::read(self.rt, path.as_path()).map_err(|_| Flaw::Unreadable)
    }
}
