// Texts of answers that the program itself doesn't print.
use flop_base::{Name, Status};
use raw_image::ImageError;
use sector_model::Stop;
use std::test::Fail;

#[test]
fn statuses_are_printed(rt: HostRuntime) -> Result<(), Fail> {
    let status = Status::BadJob;
    let text = format!(in rt.alloc(); "{status}")?;
    assert!(rt; text.as_str() == "text file not understood");
    Ok(())
}

#[test]
fn stops_are_printed(rt: HostRuntime) -> Result<(), Fail> {
    let alloc = rt.alloc();
    let name = Name::copy(alloc, "a.rt")?;
    let error = ImageError::BadField { offset: 11 };
    let stop = Stop::BadImage { name, error };
    let text = format!(in alloc; "{stop}")?;
    assert!(rt; text.as_str() == "a.rt: bad field at 11");
    Ok(())
}
