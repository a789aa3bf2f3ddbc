/// How an item was added to a list.
#[derive(Drop)]
pub enum Pushed<T> {
    /// It is the last item now.
    Added,
    /// There was no memory for it. The list is as before, and the item comes back.
    Memory { item: T },
}
