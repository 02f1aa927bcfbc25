// A step by its values.
ghost use Rattle.std.specs.Prelude.{◌≤◌, ◌^◌, length};

use nodes::Node;

/// The value of each step field, the first of its key.
#[derive(Clone, Copy, Debug)]
pub struct StepFields<'a> {
    pub name: Option<Node<'a>>,
    pub id: Option<Node<'a>>,
    pub timeout: Option<Node<'a>>,
    pub continues: Option<Node<'a>>,
    pub expect: Option<Node<'a>>,
}

/// What a step is: its fields, and its command, which is the text of a key and the value beside it.
#[derive(Clone, Copy, Debug)]
pub struct StepNodes<'a> {
    pub fields: StepFields<'a>,
    pub key: &'a [u8],
    pub value: Node<'a>,
    pub ghost short: { length key.now ≤ 2 ^ 20 },
}
