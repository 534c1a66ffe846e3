use std::alloc::{AllocError, Global};

// A file with so many modules, channels and sizes; the most of each make 1,734 bytes.
pub fn full(heap: Global, counts: (u8, u8, u8)) -> Result<Vec<u8>, AllocError> {
    let (modules, channels, sizes) = counts;
    let mut file = Vec::new(heap);
    file.extend_from_slice(&[0, modules])?;
    for number in 0..modules {
        add_module(&mut file, number)?;
    }
    file.extend_from_slice(&[0, channels])?;
    for number in 0..channels {
        let ahead = (u16::from(number) + 1) % 64;
        file.extend_from_slice(&[1 + number % 64, 1 + ahead as u8])?;
    }
    file.extend_from_slice(&[0, sizes])?;
    file.extend((0..sizes).map(|number| 1 + number % 16))?;
    Ok(file)
}

// Blocks and relay stations in turn, with names of 16 bytes.
fn add_module(file: &mut Vec<u8>, number: u8) -> Result<(), AllocError> {
    let first = u16::from(number);
    file.extend_from_slice(&[number % 2, 16])?;
    file.extend((first..first + 16).map(|letter| (33 + letter % 94) as u8))
}
