// A resource under its number in the book.
ghost use Rattle.std.specs.Prelude.{◌≤◌};

use ledger::records::Resource;

#[derive(Clone, Copy)]
pub(crate) struct NumberedResource {
    pub number: u32,
    pub resource: Resource,
    ghost powered: { resource.power ≤ 4000 },
}
