// A node of a table.
ghost use Rattle.nodes.specs.Stands.{Stands};

// The node of a table with this number: some value stands there, with all its descendants.
#[derive(Clone, Copy)]
pub struct Node<'a> {
    pub table: &'a [u32],
    pub number: usize,
    pub ghost stands: { ∥ Stands table.now number ∥₁ },
}
