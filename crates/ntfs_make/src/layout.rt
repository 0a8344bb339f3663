//! Where the areas stand.

ghost use Rattle.std.specs.Prelude.{◌≡◌, ◌++◌, ◌<◌, ◌≤◌, ◌^◌, ◌+◌, length, slice_get, unwrap_or, OnOk, IfOk};
ghost use Rattle.ntfs_make.specs.Shape.{IsShape};
ghost use Rattle.ntfs_make.specs.Areas as spec;

use crate::areas::area_rows;
use crate::shape::{Shape, bitmap_size, clusters_for};
use crate::table::{Area, AreaRow, ClusterCount, Content};
use std::alloc::{AllocError, Global};
use std::marker::Model;

/// A shape in the ranges, and the areas of its volume. Contracts see the shape alone, from which the areas follow.
#[derive(Drop)]
pub(crate) struct Layout {
    shape: Shape,
    areas: Vec<Area>,
}

impl Model for Layout {
    ghost use Rattle.ntfs_make.specs.declared.shape.Shape.{Shape};
    ghost use Rattle.ntfs_make.specs.Areas.{IsLayout};

    ghost Value = { Shape };

    ghost view = { λ l. l.shape };

    ghost invariant = { λ l. IsLayout l.shape l.areas.items };
}

impl Layout {
    // The areas of a volume in the ranges, at their places.
    pub(crate) fn new(alloc: Global, shape: Shape) -> Result<Layout, AllocError>
        requires { IsShape shape }
        ensures { IfOk result (λ layout. layout ≡ shape) }
    {
        let areas = areas_of(alloc, &shape)?;
        Ok(Layout { shape, areas })
    }

    pub(crate) fn shape(&self) -> Shape
        ensures is { result ≡ self.now }
        ensures range { IsShape result }
    {
        self.shape
    }

    pub(crate) fn areas(&self) -> &[Area]
        ensures are { result.now ≡ spec.areas_of self.now }
        ensures range { IsShape self.now }
    {
        &self.areas
    }

    // An area by its number, which is there for all numbers of the tables.
    pub(crate) fn area(&self, number: usize) -> Area
        ensures is { result ≡ spec.area_at self.now number }
        ensures start { result.start ≤ 2 ^ 40 }
        ensures length { result.length < 2 ^ 33 }
    {
        area_or_none(&self.areas, number)
    }
}

// An area by its number; one without clusters where there is none.
fn area_or_none(areas: &[Area], number: usize) -> Area
    ensures { result ≡ unwrap_or (slice_get areas.now number) spec.no_area }
{
    match areas.get(number) {
        Some(area) => *area,
        None => Area {
            start: 0,
            length: 0,
            first_vcn: 0,
            content: Content::Boot,
        },
    }
}

// How many clusters a count tells.
#[tactic(auto, unfolding(crate::specs::Areas::area_cluster_count))]
pub(crate) fn area_cluster_count(shape: &Shape, count: ClusterCount) -> u64
    requires { IsShape shape.now }
    ensures exact { result ≡ spec.area_cluster_count shape.now count }
    ensures small { result < 2 ^ 33 }
{
    match count {
        ClusterCount::ForBytes(bytes) => clusters_for(u64::from(bytes), shape.cluster),
        ClusterCount::ForBitmap => clusters_for(bitmap_size(shape.clusters), shape.cluster),
        ClusterCount::Exactly(count) => u64::from(count),
        ClusterCount::OfFile(number) => 1 + (shape.seed / 4 + u64::from(number)) % 4,
    }
}

// The area of a row, from a cluster on.
fn area_from(shape: &Shape, start: u64, row: &AreaRow) -> Area
    requires { IsShape shape.now }
    ensures exact { result ≡ spec.area_from shape.now start row.now }
    ensures small { result.length < 2 ^ 33 }
{
    Area {
        start,
        length: area_cluster_count(shape, row.length),
        first_vcn: area_cluster_count(shape, row.first_vcn),
        content: row.content,
    }
}

// Puts areas one after the other, with a free cluster between.
fn put_up(areas: &mut Vec<Area>, shape: &Shape, rows: &[AreaRow]) -> Result<(), AllocError>
    requires shape { IsShape shape.now }
    requires few { length rows.now ≤ 64 }
    ensures { OnOk result (areas.new.items ≡ areas.old.items ++ spec.areas_up shape.now 0 rows.now) }
{
    let mut start = 0;
    'rows: for row in rows {
        let area = area_from(shape, start, row);
        areas.push(area)?;
        start += area.length + 1;
    }
    Ok(())
}

// Puts areas one below the other, from the last cluster on, with a free cluster between.
fn put_down(areas: &mut Vec<Area>, shape: &Shape, rows: &[AreaRow]) -> Result<(), AllocError>
    requires { IsShape shape.now }
    ensures { OnOk result (areas.new.items ≡ areas.old.items
        ++ spec.areas_down shape.now (shape.now.clusters + 1) rows.now) }
{
    let mut bound = shape.clusters + 1;
    'rows: for row in rows {
        bound = bound.saturating_sub(area_cluster_count(shape, row.length) + 1);
        areas.push(area_from(shape, bound, row))?;
    }
    Ok(())
}

// All areas at their places.
#[tactic(auto, unfolding(crate::specs::Areas::areas_of))]
fn areas_of(alloc: Global, shape: &Shape) -> Result<Vec<Area>, AllocError>
    requires { IsShape shape.now }
    ensures { IfOk result (λ areas. areas.items ≡ spec.areas_of shape.now) }
{
    let mut areas = Vec::new(alloc);
    if shape.seed / 2 % 2 == 0 {
        put_up(&mut areas, shape, area_rows())?;
    } else {
        put_up(&mut areas, shape, &area_rows()[..1])?;
        put_down(&mut areas, shape, &area_rows()[1..])?;
    }
    Ok(areas)
}
