// The limits of document 01 and the places of the scratch, by name. Definitions of specs/ state them; the proofs tie
// the two.

// No core time: the number that stands for never, and no Option: the columns of the C interface hold it, and the
// greatest of times is found without a test for it.
pub(crate) const NEVER: u16 = 65535;

// Days are 1 to this, and so are the windows and ranges of a query.
pub(crate) const LAST_DAY: u16 = 1024;

// Accounts are 0 to this. An account can have as many others, so no k is above it.
pub(crate) const LAST_ACCOUNT: u16 = 4095;

// Accounts: as many cursors stand at the front of the scratch, and as many heads behind them.
pub const ACCOUNTS: usize = 4096;

// Where the adjacency begins in the scratch, behind cursors and heads. There are as many slots for pairs.
pub(crate) const ADJACENCY: usize = 8192;

// The most rows of a table.
pub(crate) const ROWS: usize = 16384;

// Places of the queue of settling: 256 more than there are accounts.
pub const QUEUE: usize = 4352;
