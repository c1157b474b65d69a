//! The version of a setting's certificates.
ghost use Rattle.std.specs.Prelude.{◌≡◌};
ghost use Rattle.std.specs.List.{list_any};
ghost use Rattle.certificate.specs.Answers as answers;

use adv_base::IndexShape;

/// Whether one of these candidates is clustered.
fn has_clustered(shapes: &[IndexShape]) -> bool
    ensures { result ≡ list_any (λ shape. shape.clustered) shapes.now }
{
    shapes.iter().any(|shape| shape.clustered)
}

/// The version of the certificates of a setting with these candidates: 2 where one of them is clustered, and else 1.
pub fn version_of(shapes: &[IndexShape]) -> u8
    ensures { result ≡ answers.version_of shapes.now }
{
    if has_clustered(shapes) { 2 } else { 1 }
}
