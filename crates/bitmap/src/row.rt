// An item as it lies in the table: the numbers of its granter and grantee, and its five fields.
#[derive(Clone, Copy, Debug, Default, PartialEq, Eq)]
pub struct Row {
    pub granter: u8,
    pub grantee: u8,
    pub acl: u32,
    pub taint: u32,
    pub suspend: u32,
    pub deny: u32,
    pub neut: u32,
}
