// Histories as text.
use cluster_core::Cluster;
use history_book::Item;
use history_text::{LineBuf, print_item};
use std::alloc::{AllocError, Global};

/// The lines of the items.
fn text_of(alloc: Global, items: &[Item]) -> Result<Vec<u8>, AllocError> {
    let mut text = Vec::new(alloc);
    let mut line = LineBuf::new();
    for item in items {
        print_item(item, &mut line);
        text.extend_from_slice(line.as_slice())?;
    }
    Ok(text)
}

/// Whether the cluster's whole history is this.
pub fn tells(alloc: Global, cluster: &Cluster, text: &str) -> Result<bool, AllocError> {
    let told = text_of(alloc, cluster.history())?;
    Ok(told.as_slice() == text.as_bytes())
}

/// Whether its history ends with this.
pub fn ends_with(alloc: Global, cluster: &Cluster, text: &str) -> Result<bool, AllocError> {
    let told = text_of(alloc, cluster.history())?;
    Ok(told.as_slice().ends_with(text.as_bytes()))
}
