ghost use Rattle.std.specs.Prelude.{◌≡◌, map};
ghost use Rattle.aas_form.specs.WithoutBlobs.{without_blob, blobless, without_blobs, submodel_without_blobs};

use aas_model::{Element, Extent, Payload, Submodel};

fn strip_payload(payload: &mut Payload)
    ensures { payload.new ≡ without_blob payload.old }
{
    if let Payload::Blob { value, .. } = payload {
        *value = None;
    }
}

#[cycle(strip)]
fn strip_one(element: &mut Element)
    ensures { element.new ≡ blobless element.old }
{
    strip_payload(&mut element.payload);
    strip_all(element.kids.as_mut_slice());
}

#[cycle(strip)]
fn strip_all(kids: &mut [Element])
    ensures { kids.new ≡ map blobless kids.old }
{
    for kid in kids.iter_mut() {
        strip_one(kid);
    }
}

/// The submodel to an extent: all of it, or without the value of each Blob in it. It takes no memory.
///
/// IDTA-01002-3-0, serialization modifier Extent.
pub fn strip(submodel: Submodel, extent: Extent) -> Submodel
    ensures { result ≡ submodel_without_blobs extent submodel }
{
    match extent {
        Extent::WithBlobValue => submodel,
        Extent::WithoutBlobValue => {
            let mut submodel = submodel;
            strip_all(submodel.kids.as_mut_slice());
            submodel
        },
    }
}

/// The element to an extent: all of it, or without its value, if it is a Blob, and that of each Blob below it. It takes no
/// memory.
///
/// IDTA-01002-3-0, serialization modifier Extent.
pub fn strip_element(element: Element, extent: Extent) -> Element
    ensures { result ≡ without_blobs extent element }
{
    match extent {
        Extent::WithBlobValue => element,
        Extent::WithoutBlobValue => {
            let mut element = element;
            strip_one(&mut element);
            element
        },
    }
}
