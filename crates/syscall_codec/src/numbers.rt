//! The numbers of system calls: the first word of a call.

pub const MAP_MEMORY: u32 = 2;

pub const YIELD: u32 = 3;

pub const CLAIM_INTERRUPT: u32 = 5;

pub const FREE_INTERRUPT: u32 = 6;

pub const INCREASE_HEAP: u32 = 10;

pub const DECREASE_HEAP: u32 = 11;

pub const UPDATE_MEMORY_FLAGS: u32 = 12;

pub const CREATE_SERVER_WITH_ADDRESS: u32 = 14;

pub const RECEIVE_MESSAGE: u32 = 15;

pub const SEND_MESSAGE: u32 = 16;

pub const CONNECT: u32 = 17;

pub const CREATE_THREAD: u32 = 18;

pub const UNMAP_MEMORY: u32 = 19;

pub const RETURN_MEMORY: u32 = 20;

pub const TERMINATE_PROCESS: u32 = 22;

pub const TRY_SEND_MESSAGE: u32 = 24;

pub const TRY_CONNECT: u32 = 25;

pub const RETURN_SCALAR1: u32 = 26;

pub const RETURN_SCALAR2: u32 = 27;

pub const TRY_RECEIVE_MESSAGE: u32 = 28;

pub const JOIN_THREAD: u32 = 36;

pub const DESTROY_SERVER: u32 = 41;

pub const GET_THREAD_ID: u32 = 42;

pub const GET_PROCESS_ID: u32 = 43;

pub const FORWARD_MESSAGE: u32 = 44;
