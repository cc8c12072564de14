//! The clients of a drill, who have sent all their bytes before they are served.
ghost use Rattle.std.specs.Prelude.{◌≡◌, [], ◌∷◌, IfOk};
ghost use Rattle.drill_work.specs.Laws.Ended.{client_with};

use drill_streams::NoMemory;
use std::alloc::Global;
use vc_outside::{Client, SureSink, SureSource};

/// A client of a drill.
pub(crate) type Link = Client<SureSource, SureSink>;

/// The clients with these bytes, to whom nothing was sent yet.
pub(crate) fn clients_of(
    alloc: Global,
    first: Vec<u8>,
    second: Vec<u8>,
    third: Vec<u8>,
) -> Result<Vec<Link>, NoMemory>
    ensures { IfOk result (λ v. v.items
        ≡ client_with first.items ∷ client_with second.items ∷ client_with third.items ∷ []) }
{
    let links = [
        client_of(alloc, first),
        client_of(alloc, second),
        client_of(alloc, third),
    ];
    match Vec::from_array(alloc, links) {
        Ok(links) => Ok(links),
        Err(_) => Err(NoMemory),
    }
}

fn client_of(alloc: Global, bytes: Vec<u8>) -> Link
    ensures { result ≡ client_with bytes.items }
{
    Client {
        source: SureSource::new(bytes),
        sink: SureSink::new(alloc),
    }
}
