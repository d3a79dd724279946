//! Function identifiers (FF-A 1.1, "Function identifiers"): of the 32-bit convention, and those of the
//! 64-bit convention with the ending `_64`.

/// An error, with a status in w2.
pub const FFA_ERROR: u32 = 0x8400_0060;

/// Success.
pub const FFA_SUCCESS: u32 = 0x8400_0061;

/// The version of FF-A that a partition speaks.
pub const FFA_VERSION: u32 = 0x8400_0063;

/// Whether a call or another feature is known.
pub const FFA_FEATURES: u32 = 0x8400_0064;

/// Gives RX back.
pub const FFA_RX_RELEASE: u32 = 0x8400_0065;

/// Registers a buffer pair.
pub const FFA_RXTX_MAP: u32 = 0x8400_0066;

/// The same, with addresses of 64 bits.
pub const FFA_RXTX_MAP_64: u32 = 0xc400_0066;

/// Ends the registration of a buffer pair.
pub const FFA_RXTX_UNMAP: u32 = 0x8400_0067;

/// The caller's identifier.
pub const FFA_ID_GET: u32 = 0x8400_0069;

/// Gives pages away.
pub const FFA_MEM_DONATE: u32 = 0x8400_0071;

/// The same by the 64-bit convention.
pub const FFA_MEM_DONATE_64: u32 = 0xc400_0071;

/// Lends pages.
pub const FFA_MEM_LEND: u32 = 0x8400_0072;

/// The same by the 64-bit convention.
pub const FFA_MEM_LEND_64: u32 = 0xc400_0072;

/// Shares pages.
pub const FFA_MEM_SHARE: u32 = 0x8400_0073;

/// The same by the 64-bit convention.
pub const FFA_MEM_SHARE_64: u32 = 0xc400_0073;

/// Retrieves the pages of a transaction.
pub const FFA_MEM_RETRIEVE_REQ: u32 = 0x8400_0074;

/// The same by the 64-bit convention.
pub const FFA_MEM_RETRIEVE_REQ_64: u32 = 0xc400_0074;

/// Answers a retrieve request.
pub const FFA_MEM_RETRIEVE_RESP: u32 = 0x8400_0075;

/// Gives retrieved pages back.
pub const FFA_MEM_RELINQUISH: u32 = 0x8400_0076;

/// Ends a transaction.
pub const FFA_MEM_RECLAIM: u32 = 0x8400_0077;
