//! The sizes of generated records.

use run_script::{Action, Line, generate};
use std::alloc::{AllocError, Global};
use std::test::Fail;

// How many bytes the records of all inserts have.
fn sizes_of(alloc: Global, backends: &[Vec<Line>]) -> Result<Vec<u32>, AllocError> {
    let mut sizes = Vec::new(alloc);
    for lines in backends {
        for line in lines {
            if let Action::Insert(body) = &line.action {
                sizes.push(body.as_body().len())?;
            }
        }
    }
    Ok(sizes)
}

#[test]
fn first_records_have_these_sizes(rt: HostRuntime) -> Result<(), Fail> {
    let backends = generate(rt.alloc(), 1)?;
    let sizes = sizes_of(rt.alloc(), &backends)?;
    assert_eq!(rt; sizes.as_slice(), [24, 157, 291, 422].as_slice());
    Ok(())
}
