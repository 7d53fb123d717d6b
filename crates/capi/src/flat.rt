// Answers with enums in them, as structs of numbers. specs/Flat.antt says how each stands for its answer.
// Kept: numbers of refusals and flags beside values are the C interface (the structs of include/ketphiroj.h).

// A row of a reply as read.
#[repr(C)]
#[derive(Clone, Copy, Default)]
pub struct FlatReply {
    // document 01's number
    pub number: u8,
    // the type
    pub kind: u8,
    pub echo: u8,
    pub error: u8,
    // whether the row carries a value; 0 stands for none
    pub has_value: bool,
    pub value: u32,
}

// A field of a data message as read. C has no part of a message to be handed out: it has the place and the size of the data, of
// every field, and takes the part itself (`FlatLocated`).
#[repr(C)]
#[derive(Clone, Copy, Default)]
pub struct FlatField {
    // document 01's number
    pub number: u8,
    // 0x81 is an acceleration, 0x82 a rate, any other an unknown field
    pub code: u8,
    // the place in the message of the field's first data byte, and how many there are
    pub place: usize,
    pub size: usize,
    // the patterns of the three axes; 0 with an unknown field
    pub x: u32,
    pub y: u32,
    pub z: u32,
}

// The values that a page keeps. Beside a `has_` that is false the value is not looked at, and is 0 where it is read.
#[repr(C)]
#[derive(Clone, Copy, Default)]
pub struct FlatValues {
    pub has_baud: bool,
    pub baud: u32,
    pub has_accelerometer: bool,
    pub accelerometer: u32,
    pub has_gyroscope: bool,
    pub gyroscope: u32,
    // the last number accepted
    pub has_last_number: bool,
    pub last_number: u32,
}

// What reading a page answers.
#[repr(C)]
#[derive(Clone, Copy)]
pub struct FlatPage {
    pub values: FlatValues,
    // document 01's number
    pub number: u8,
}
