//! A map whose entries are added, replaced and taken out without memory, at keys for which memory was taken before.
#![tactic(auto)]

pub mod keys;
pub mod places;
pub mod reserved_map;

pub use keys::ExactKey;
pub use reserved_map::ReservedMap;

#[cfg(test)]
mod tests {
    use super::*;
    use std::ops::Bound;
    use std::test::Fail;

    #[test]
    fn changes_what_was_reserved(rt: HostRuntime) -> Result<(), Fail> {
        let mut map = ReservedMap::new(rt.alloc());
        map.reserve(&3u32)?;
        assert!(rt; !map.contains_key(&3));
        assert_eq!(rt; map.put(&3, 30u8), None);
        assert_eq!(rt; map.put(&3, 31), Some(30));
        assert_eq!(rt; map.get(&3), Some(&31));
        map.release(&3);
        assert_eq!(rt; map.take(&3), Some(31));
        assert_eq!(rt; map.put(&3, 32), None);
        assert_eq!(rt; map.remove(&3), Some(32));
        map.reserve_owned(4)?;
        map.release(&4);
        assert_eq!(rt; map.take(&4), None);
        Ok(())
    }

    #[test]
    fn goes_on_in_order(rt: HostRuntime) -> Result<(), Fail> {
        let mut map = ReservedMap::new(rt.alloc());
        map.reserve(&5u32)?;
        map.put(&5, 'e');
        map.reserve(&9)?;
        map.put(&9, 'i');
        map.reserve_all(&[1, 3])?;
        if let Some(letter) = map.get_mut(&9) {
            *letter = 'j';
        }
        assert_eq!(rt; map.first_from(Bound::Included(&1)), Some((&5, &'e')));
        assert_eq!(rt; map.first_from(Bound::Included(&5)), Some((&5, &'e')));
        assert_eq!(rt; map.first_from(Bound::Excluded(&5)), Some((&9, &'j')));
        assert_eq!(rt; map.first_from(Bound::Excluded(&9)), None);
        assert!(rt; map.is_reserved(&3));
        assert_eq!(rt; map.get_mut(&3), None);
        Ok(())
    }

    #[test]
    fn keeps_the_first_of_two(rt: HostRuntime) -> Result<(), Fail> {
        let pairs = vec![in rt.alloc(); (7u32, 'a'), (2, 'b'), (7, 'c')]?;
        let map = ReservedMap::from_pairs(rt.alloc(), pairs)?;
        assert_eq!(rt; map.get(&7), Some(&'a'));
        assert_eq!(rt; map.first_from(Bound::Unbounded), Some((&2, &'b')));
        assert_eq!(rt; map.keys(rt.alloc())?.as_slice(), [2, 7].as_slice());
        Ok(())
    }
}
