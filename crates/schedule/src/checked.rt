// A schedule file whose fields have all passed their tests, and what is gathered of it.
mod gather;

ghost use Rattle.std.specs.Prelude.{◌≡◌, None};
ghost use Rattle.layout.specs.Order.{field_tests};

use crate::image::Image;
use crate::marks::Marks;
use plan::Plan;

#[derive(Clone, Copy)]
pub struct Checked<'a> {
    pub(crate) image: Image<'a>,
    ghost passed: { field_tests image.bytes.now ≡ None },
}

// The plan and the marks of the cells so far, and which hop records their chains have reached.
#[derive(Drop)]
pub struct Gathering {
    seen: [bool; 2049],
    pub(crate) plan: Plan,
    pub(crate) marks: Vec<Marks>,
}
