//! What several modules test on.

/// The text of a shape, as it is printed.
pub const FLIGHTS_SHAPE: &[u8] =
    b"table flights\nrows 5\norigin TEXT(3)\ndest TEXT(3)\nmonth UINT(4)\nprice UINT(16)\n";

/// The text of a table of that shape, as it is written.
pub const FLIGHTS: &[u8] =
    b"origin,dest,month,price\nSFO,JFK,3,300\nSFO,JFK,4,450\nSFO,BOS,3,200\nLAX,JFK,5,310\nSFO,JFK,5,600\n";
