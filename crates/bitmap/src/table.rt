use crate::object_items::ObjectItems;

// The bitmap table: the items of each of 32 objects.
#[derive(Drop)]
pub struct BitmapTable {
    // of a fixed length: nothing here may allocate
    pub(crate) objects: [ObjectItems; 32],
}
